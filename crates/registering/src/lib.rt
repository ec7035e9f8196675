// How the nodes of a table of words stand in a register, with chains, links, numbers and arcs: definitions in specs/,
// laws in proofs/.
#![tactic(auto)]

// A node's row in the register: the first word behind the node, how many there are, how many of their letters stand
// before it, and the letters of the longest continuation. The last two fields have two uses, since fields of their own
// would take more stack than a call may (bench/stack). While nodes are registered they hold the place of the node
// before this one in its chain, counted from 1, where 0 ends the chain (an Option would take twice the bytes), and the
// mark of the continuations. Once all nodes are numbered they hold the number of the node at this place, and, in row k,
// the place of node k + 1.
#[derive(Clone, Copy)]
pub struct Row {
    pub first: u16,
    pub many: u16,
    pub depth: u16,
    pub longest: u16,
    pub chain_or_number: u16,
    pub mark_or_place: u16,
}
