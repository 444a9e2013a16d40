//! A run of the program over any jobs: the world that it changes, and its moves. What a job does is a parameter.
#![tactic(auto)]
