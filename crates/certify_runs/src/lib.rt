// Certification as the rules have it, as a test and as runs: definitions and theorems.
#![tactic(auto)]

ghost use Rattle.std.specs.Prelude.{◌≡◌, []};
ghost use Rattle.certify_runs.specs.Values.{run_of};

// A step of a run of one thread alone: its next instruction executed at a time (kind 0), or a store with a message of its own at that time (kind 1).
#[derive(Clone, Copy, Default)]
pub struct RunStep {
    pub kind: u8,
    pub time: u8,
}

// The steps of a run, `count` of them; the other entries are 0.
#[derive(Clone, Copy)]
pub struct Run {
    pub steps: [RunStep; 16],
    pub count: u8,
}

// Without steps.
impl Default for Run {
    fn default() -> Run
        ensures { result ≡ run_of [] }
    {
        Run {
            steps: [RunStep::default(); 16],
            count: 0,
        }
    }
}
