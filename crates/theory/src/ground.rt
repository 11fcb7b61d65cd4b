// Names and types that are always there, by their numbers.

// The name ->, the type bool, the names = and @, and the types of the constants of these names.
#[derive(Clone, Copy)]
pub struct Ground {
    pub arrow: u64,
    pub boolean: u64,
    pub equality: u64,
    pub choice: u64,
    pub equality_type: u64,
    pub choice_type: u64,
}
