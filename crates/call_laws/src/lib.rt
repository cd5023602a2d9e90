// The calls on lent lists that pass the first checks answer what the code makes of the rows.
#![tactic(auto)]
