// Which calls are refused, and that what a run leaves is accepted: theorems, no code.
#![tactic(auto)]
