//! Laws on commands.
ghost use Rattle.std.specs.Prelude.{◌≡◌, ◌≤◌, ℕ, Bool, List};
ghost use Rattle.asp_command.specs.declared.words.Command.{Command};
ghost use Rattle.asp_command.specs.Words.{IsCommand, SaysReplay, SaysServe};

/// Words say at most one command.
#[tactic(auto, using(crate::proofs::OneCommand::one_command))]
pub fn one_command()
    ensures { (words : List (List ℕ)) (command other : Command) → IsCommand words command → IsCommand words other
        → command ≡ other }
{}

/// The number of workers that the words of `replay` say, or leave unsaid, is such as it may be.
pub fn replay_within()
    ensures { (words : List (List ℕ)) (site : List ℕ) (workers : ℕ) (journal strict : Bool)
        → SaysReplay words site workers journal strict → (1 ≤ workers) × (workers ≤ 16) }
{}

/// The numbers that the words of `serve` say, or leave unsaid, are such as they may be.
pub fn serve_within()
    ensures { (words : List (List ℕ)) (site : List ℕ) (requests workers port : ℕ) (strict : Bool)
        → SaysServe words site requests workers port strict → (1 ≤ requests) × (requests ≤ 100000) × (1 ≤ workers)
        × (workers ≤ 16) × (1 ≤ port) × (port ≤ 65535) }
{}
