// One step is a definition, with its laws: `run_loop` makes it, as a run of one step.
#![tactic(auto)]
