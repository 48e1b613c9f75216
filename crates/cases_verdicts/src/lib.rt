// Theory only: programs with known verdicts, proved under the definitions.
#![tactic(auto)]
