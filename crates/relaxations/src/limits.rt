// Every number that decides when relaxations and the clause engine are asked, how long, and about how much. Names in brackets
// are those of docs/DECISIONS.md.

// ---- before the first turn

// Objectives of fewer terms have small totalizers, which give clauses more to name: where no objective has as many, searches
// don't begin with relaxations (ten-terms).
pub(crate) const LEAST_TERMS: usize = 10;

// Where there is no objective, they don't for fewer variables: clauses are as fast there (plain).
pub(crate) const LEAST_VARIABLES: u64 = 20;

// So many questions are asked then at most: no front that is found by them has as many vectors.
pub(crate) const MOST_QUESTIONS: usize = 1_000_000;

// Where rows have lines besides, relaxations are asked with them and then without them, by this part of the purse each.
pub(crate) const PARTS_WITH_AND_WITHOUT: u64 = 2;

// Boxes that stayed open are asked again when the purse has more than so many times what it had (first-sought).
pub(crate) const TIMES_TO_TRY_AGAIN: u64 = 2;

// ---- boxes (boxes)

// Where there are more boxes, they are neither asked nor divided any more: each vector is compared with all.
pub(crate) const MOST_BOXES: usize = 500;

// Where there are more boxes, no parts of them are asked: a fence rises often, and then all of them are asked again.
pub(crate) const MOST_PARTS: usize = 120;

// ---- cliques (cliques)

// So many literals a clique has at most: its line has as many tokens as the square of that.
pub(crate) const MOST_MEMBERS: usize = 100;

// Fewer than these say no more than the rows do.
pub(crate) const LEAST_MEMBERS: usize = 3;

// So many pairs are looked up at most: a second's work on a problem of a million such rows.
pub(crate) const MOST_LOOKS: usize = 5_000_000;

// ---- work, in numbers touched: 10^9 take one to four seconds (purse)

// At first: some tenths of a second.
pub(crate) const FIRST_WORK: u64 = 200_000_000;

// The same where each row is met by any of its literals, as clauses are. A search by clauses ends circuits and rules in less, and where
// it doesn't, since objectives are large, what their totalizers take is allowed besides. With a quarter of this rules took two thirds, and
// a product line of four costs twice as long.
pub(crate) const FIRST_WORK_OF_CLAUSES: u64 = 80_000_000;

// For each line of the objectives' totalizers, as far as they can be estimated: what a line takes to make and to judge, so that a
// search that has to build them takes at most twice the time of one that begins with them.
pub(crate) const WORK_OF_A_LINE: u64 = 5_000;

// For each row that counts so many passes over rows that count and columns, and one more for each such row: a linear program takes
// some for each, and search by clauses takes long over them too. Clauses don't count: where they did, searches of circuits and of
// rules took thrice as long.
pub(crate) const PASSES_A_ROW: u64 = 100;

// Where all rows count as much may be lost as so many programs like the root's take, and else that share of it: trees of large programs
// need more than small ones, but where most rows are clauses they tell little.
pub(crate) const ROOTS_IN_PURSE: u64 = 30;

// Nobody waits for more, where it tells nothing.
pub(crate) const MOST_WORK: u64 = 30_000_000_000;

// Where no objective is there, a question is one of clauses or of counting: the one is as fast otherwise, the other needs little.
// So only this part of the work is allowed.
pub(crate) const PART_WITHOUT_OBJECTIVES: u64 = 16;

// What relaxations earn by each clause that the oracle learned: about as much work as that took.
pub(crate) const WORK_OF_A_CLAUSE: u64 = 200_000;

// ---- totalizers of rows (row-totalizers)

// How many lines all rows' totalizers may take, and how many for each row if that is more: a roster of four weeks wants some
// 70 a row, and takes a second to write them.
pub(crate) const MOST_LINES: u64 = 40_000;

pub(crate) const MOST_LINES_A_ROW: u64 = 80;

// A totalizer of more lines, of more terms, or of a larger sum isn't made.
pub(crate) const MOST_LINES_OF_ONE: u64 = 4_000;

pub(crate) const MOST_TERMS: usize = 256;

pub(crate) const MOST_SUM: u64 = 4_096;

// An output that stands for fewer than so many literals says no more than these.
pub(crate) const LEAST_COUNT: i64 = 2;

// ---- the clause engine (engine, engine-first)

// From so many learned clauses on the engine is asked first. What ends before is seldom worth an engine's beginning, and
// its log is shorter: a learned clause is dropped again, an engine's stays.
pub(crate) const FIRST_CLAUSES: u64 = 1_000;
