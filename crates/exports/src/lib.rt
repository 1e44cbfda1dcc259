// What a bench in C or Rust links: the card, the step maker and the openers, with plain numbers in and out. No call keeps anything between
// calls. The structs are the header's: a refusal is a number beside the values. An answer becomes one by a `From`, or by a
// `match` in the one call that tells it, where a `From` with its contract and its proof is longer.
#![tactic(auto)]

mod acts;
mod openers;
mod reasons;
mod steps;
mod version;
