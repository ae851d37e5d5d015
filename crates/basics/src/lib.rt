// What every layer's definitions and proofs share: the conditional, members and searches of lists,
// chains of calls, bits, closures, and their laws. No code.
#![tactic(auto)]
