//! The server as a pure function of its state and a call, and what its state owes. Definitions alone so far: no function carries a
//! theorem about them yet.
#![tactic(auto)]
