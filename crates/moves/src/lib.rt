// The life of a report as moves from place to place, and that every move keeps the accounts of the ledger. Definitions and lemmas only.
#![tactic(auto)]
