//! A folder in memory with calls that fail.
ghost use Rattle.std.specs.Prelude.{◌≡◌, ◌≤◌, ◌↔◌, Some, Err, IfOk, IsTrue, length, map, option_map, take};
ghost use Rattle.asp_io.specs.FaultPlan.{after_call, fails_next};
ghost use Rattle.asp_io.specs.Faults.{HasCause};
ghost use Rattle.asp_io.specs.Folder.{AreSitePaths, HasFile, bytes_of, path_of};

use crate::fault::IoStop;
use crate::fault_plan::FaultPlan;
use crate::folder::Folder;
use crate::sure_folder::SureFolder;
use std::alloc::Global;
use vb_value::{Bytes, List, Text};

/// A folder in memory with calls that fail. Names and reads are counted together.
#[derive(Debug, Drop)]
pub struct MemFolder {
    /// Its files.
    pub folder: SureFolder,
    /// Which calls fail.
    pub plan: FaultPlan,
}

impl MemFolder {
    /// The folder before the first call, whose calls with a number of `fails` are to fail.
    pub fn new(folder: SureFolder, fails: List<u64>) -> MemFolder
        ensures { result ≡ record { folder = folder; plan = record { fails = fails; calls = 0; faults = 0 } } }
    {
        MemFolder {
            folder,
            plan: FaultPlan::new(fails),
        }
    }
}

impl Folder for MemFolder {
    ghost files = { λ folder. Some folder.folder };

    ghost faults = { λ folder. folder.plan.faults };

    fn names(&mut self, alloc: Global) -> Result<List<Text>, IoStop>
        ensures names { IfOk result (λ names. names ≡ map path_of self.old.folder) }
        ensures paths { IfOk result AreSitePaths }

        // The calls that the plan lists fail, and no others.
        ensures fails { (result ≡ Err IoStop.Failed) ↔ IsTrue (fails_next self.old.plan) }
        ensures after { self.new ≡ record self.old { plan = after_call self.old.plan } }
        ensures cause { HasCause IoStop.Failed self.old.plan.faults self.new.plan.faults result }
    {
        self.plan.next_call()?;
        Ok(self.folder.paths(alloc)?)
    }

    fn read(&mut self, alloc: Global, name: &Text, most: u32) -> Result<Bytes, IoStop>
        requires { HasFile self.old.folder name.now }
        ensures bytes { IfOk result (λ bytes. option_map (take most) (bytes_of self.old.folder name.now) ≡ Some bytes) }
        ensures within { IfOk result (λ bytes. length bytes ≤ most) }

        // The calls that the plan lists fail, and no others.
        ensures fails { (result ≡ Err IoStop.Failed) ↔ IsTrue (fails_next self.old.plan) }
        ensures after { self.new ≡ record self.old { plan = after_call self.old.plan } }
        ensures cause { HasCause IoStop.Failed self.old.plan.faults self.new.plan.faults result }
    {
        self.plan.next_call()?;
        self.folder.read(alloc, name, most)
    }
}
