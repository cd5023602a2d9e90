// The law of the checker: the test by rows and links says yes exactly to the sound tables.
#![tactic(auto)]
