// No code: the player computed on small tracks. See specs/.
#![tactic(auto)]
