//! What a machine asks for, in numbers.
ghost use Rattle.std.specs.Prelude.{◌≡◌};
ghost use Rattle.nrvs_nodes_c.specs.Numbers.{numbers_of, numbers_of_operation, numbers_of_word};

use nr_machine::{Asked, Operation, Update, Word};

/// What is asked for: its code, and what it has; what it doesn't have is 0.
#[repr(C)]
#[derive(Clone, Copy, Debug, Default, PartialEq, Eq)]
pub struct Numbers {
    /// 0 nothing, 1 a load, 2 a store, 3 an exchange, 4 a maximum, 5 that an entry is applied, 6 that a node takes entries, 7 broken.
    pub code: u32,
    /// Which word: 0 head, 1 completed, 2 local, 3 done, 4 and 5 the first and second word of an entry.
    pub word: u32,
    /// The number of the word's node, or of the one that lags.
    pub node: u64,
    /// The index of the word in the node's ring.
    pub index: u64,
    /// The value that is stored, or with which the word is compared.
    pub value: u64,
    /// The value for which it is exchanged.
    pub new_value: u64,
    /// The entry that is to be applied.
    pub entry: Update,
}

impl Numbers {
    /// The numbers of what is asked for.
    #[inline(always)]
    pub(crate) fn of(asked: Asked) -> Numbers
        ensures { result ≡ numbers_of asked }
    {
        match asked {
            Asked::Carry(operation) => Numbers::of_operation(operation),
            Asked::Apply(entry) => Numbers {
                code: 5,
                entry,
                ..Numbers::of_word(Word::Head)
            },
            Asked::Lags(node) => Numbers {
                code: 6,
                node,
                ..Numbers::of_word(Word::Head)
            },
            Asked::Done => Numbers::of_word(Word::Head),
            Asked::Broken => Numbers {
                code: 7,
                ..Numbers::of_word(Word::Head)
            },
        }
    }

    /// The numbers of an operation.
    fn of_operation(operation: Operation) -> Numbers
        ensures { result ≡ numbers_of_operation operation }
    {
        match operation {
            Operation::Load(word) => Numbers {
                code: 1,
                ..Numbers::of_word(word)
            },
            Operation::Store(word, value) => Numbers {
                code: 2,
                value,
                ..Numbers::of_word(word)
            },
            Operation::Exchange(word, value, new_value) => Numbers {
                code: 3,
                value,
                new_value,
                ..Numbers::of_word(word)
            },
            Operation::Max(word, value) => Numbers {
                code: 4,
                value,
                ..Numbers::of_word(word)
            },
        }
    }

    /// The numbers of a word, with nothing else.
    fn of_word(word: Word) -> Numbers
        ensures { result ≡ numbers_of_word word }
    {
        let (word, node, index) = match word {
            Word::Head => (0, 0, 0),
            Word::Completed => (1, 0, 0),
            Word::Local(node) => (2, node, 0),
            Word::Done(node) => (3, node, 0),
            Word::First(node, index) => (4, node, index),
            Word::Second(node, index) => (5, node, index),
        };
        Numbers {
            code: 0,
            word,
            node,
            index,
            value: 0,
            new_value: 0,
            entry: Update {
                first: 0,
                second: 0,
            },
        }
    }
}
