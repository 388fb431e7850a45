// No function: what each change of a volume keeps. Laws that only `promises` cites.
#![tactic(auto)]
