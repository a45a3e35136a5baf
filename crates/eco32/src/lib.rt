// The calls for C: numbers and byte slices, the machine as its record. include/eco32.h documents them. `eco32_charged` has the charged runs.
#![tactic(auto)]

mod record_exports;
mod run_exports;
mod view_export;
