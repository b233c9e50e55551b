// What a node does, as a word.
use lq_text_walk::walk::{One, Row, Three, Two};

pub(crate) fn word_of_one(head: One) -> &'static str {
    match head {
        One::Neg => "neg",
        One::Not => "not",
        One::Assert => "assert",
        One::Length => "length",
        One::Print => "print",
        One::Read => "read",
    }
}

pub(crate) fn word_of_two(head: Two) -> &'static str {
    match head {
        Two::Call => "call",
        Two::Arith(_) => "arith",
        Two::Compare(_) => "compare",
        Two::And => "and",
        Two::Or => "or",
        Two::Make => "make",
        Two::Fetch => "fetch",
        Two::MapFind => "find",
    }
}

pub(crate) fn word_of_three(head: Three) -> &'static str {
    match head {
        Three::If => "if",
        Three::Store => "store",
        Three::MapAdd => "add",
    }
}

pub(crate) fn word_of_row(head: Row) -> &'static str {
    match head {
        Row::Tuple => "tuple",
        Row::Build(_, _) => "build",
        Row::ListOf => "list",
        Row::Chain => "chain",
    }
}
