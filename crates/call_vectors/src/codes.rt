// What the script may call, by its numbers: the file stdin lists them.
use reports::Report;
use script::buffers::Cursor;
use signed::num;

#[derive(Clone, Copy)]
pub enum Call {
    Sheet,
    Assemble,
    Verdicts,
    Operate {
        persona: i64,
        operation: i64,
        wanted: i64,
    },
    First(i64),
    Next(i64),
    Run(i64),
    // First, then next until refused.
    All(i64),
    // First, then so many nexts.
    List {
        flow: i64,
        nexts: usize,
    },
    LookUp(Report, i64),
    Reachable(i64),
    Admissible {
        entity: i64,
        state: i64,
        persona: i64,
        operation: i64,
    },
    CanCause {
        persona: i64,
        entity: i64,
        from: i64,
        to: i64,
    },
    Rules,
}

impl Call {
    // Takes a call's number and its numbers, and leaves its buffers.
    pub fn take(calls: &mut Cursor<'_>) -> Call {
        match calls.number() {
            0 => Call::Sheet,
            1 => Call::Assemble,
            2 => Call::Verdicts,
            3 => Call::Operate {
                persona: calls.number(),
                operation: calls.number(),
                wanted: calls.number(),
            },
            4 => Call::First(calls.number()),
            5 => Call::Next(calls.number()),
            6 => Call::Run(calls.number()),
            7 => Call::All(calls.number()),
            8 => Call::List {
                flow: calls.number(),
                nexts: num(calls.number()),
            },
            9 => Call::LookUp(Report::States, calls.number()),
            10 => Call::Reachable(calls.number()),
            11 => Call::Admissible {
                entity: calls.number(),
                state: calls.number(),
                persona: calls.number(),
                operation: calls.number(),
            },
            12 => Call::CanCause {
                persona: calls.number(),
                entity: calls.number(),
                from: calls.number(),
                to: calls.number(),
            },
            13 => Call::Rules,
            14 => Call::LookUp(Report::Stratum, calls.number()),
            15 => Call::LookUp(Report::Outcomes, calls.number()),
            16 => Call::LookUp(Report::TreeSize, calls.number()),
            17 => Call::LookUp(Report::Depth, calls.number()),
            // No call has another number. It is read as a depth that leaves its number where it stands.
            _ => Call::LookUp(Report::Depth, calls.peek()),
        }
    }

    // How many buffers it has.
    pub fn buffers(self) -> usize {
        match self {
            Call::Sheet | Call::First(_) | Call::Next(_) | Call::All(_) | Call::List { .. } => 1,
            Call::Assemble => 4,
            Call::Verdicts => 5,
            Call::Operate { .. } => 6,
            Call::Run(_) => 8,
            _ => 0,
        }
    }
}
