// The calls of the crate host for host programs in C, under the names of include/sheets.h. Names, parameters and the calls of the two machines
// one by one are the C interface.
#![tactic(auto)]

mod calls;
mod gateway;
