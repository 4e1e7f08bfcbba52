//! Laws of scripts and their proofs: why a yes of the checker means something, and what a script and its proof come to.
//!
//! Each rule of `sb_rulebook` is a test on clauses, sets of regexes or verdicts; a law here says that what the test
//! accepts is true. The one idea is that truth is that of the atoms under a valuation, so a law on clauses speaks of
//! every valuation, or of every one whose words are words of characters, and a rule that is too wide has no law.
//! Beside it stands a law that says in words exactly which clauses, or lines, the test accepts. The laws of `steps`
//! carry those of the rules over to the lines of a proof, and the laws of `proofs` to whole proofs. Beside them stand
//! the laws of a script that is answered with its proof (`certified`), and of what comes of a proof along with a script
//! (`outcome`).
//!
//! There is no program code here. Each function is a law: its body is empty, or calls the laws that it rests on. A
//! caller calls it to have the law.
#![tactic(auto)]

pub mod bounds;
pub mod certified;
pub mod clauses;
pub mod counts;
pub mod dead;
pub mod gates;
pub mod hints;
pub mod limits;
pub mod linear;
pub mod memberships;
pub mod outcome;
pub mod proofs;
pub mod regexes;
pub mod relevant;
pub mod scripts;
pub mod steps;
pub mod terms;
pub mod translations;
pub mod verdicts;
