// How tokens stand in slots, gains in tables, places in numbers: the tables' types here, definitions in specs/, laws in
// proofs/.
#![tactic(auto)]

// The numbers of the moves inside one letter, which has at most four states: of state s that of its loop, loops[s], and
// that of the step into it, steps[s].
#[derive(Clone, Copy)]
pub struct Moves {
    pub loops: [u32; 4],
    pub steps: [u32; 4],
}

// What is read once a call of one letter: the numbers of its moves, its index, and the number of its first state.
#[derive(Clone, Copy)]
pub struct Letter {
    pub moves: Moves,
    pub index: u32,
    pub first_state: u32,
}

impl Moves {
    // Of which none is known.
    pub const BLANK: Moves = Moves {
        loops: [0; 4],
        steps: [0; 4],
    };
}

impl Letter {
    // Of which nothing is known.
    pub const BLANK: Letter = Letter {
        moves: Moves::BLANK,
        index: 0,
        first_state: 0,
    };
}
