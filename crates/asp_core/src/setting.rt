//! What a core is set to, beside its runner and its site.
#![tactic(auto)]

/// What a core is set to.
#[derive(Clone, Copy, Debug)]
pub struct Setting {
    /// The letters of session keys are made of it.
    pub seed: [u8; 32],
    /// Whether a Lock keeps readers out too.
    pub strict: bool,
}
