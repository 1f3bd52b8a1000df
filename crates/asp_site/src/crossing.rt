//! What threads may share.
#![tactic(auto)]

use crate::site::Site;

fn crosses<T: Sync>(_value: &T) {}

/// Threads may share a site.
pub fn site_crosses(site: &Site) {
    crosses(site)
}
