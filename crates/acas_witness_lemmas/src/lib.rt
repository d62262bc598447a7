//! That an area which is not clear is endangered, with no search run.
#![tactic(auto)]
