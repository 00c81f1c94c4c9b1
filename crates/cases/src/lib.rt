// 01's proved cases P1 to P10: the table is `cases` and the statement `wrong`, both in specs/CaseTable.antt; the proof is in proofs/Proved.antt.
#![tactic(auto)]
