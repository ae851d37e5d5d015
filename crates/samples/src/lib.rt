//! The starred bench samples of document 01 as one table. No code.
#![tactic(auto)]
