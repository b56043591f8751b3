// The stages of an open book, as types, each with the state that its table is in.
ghost use Rattle.std.specs.Prelude.{◌≡◌, true, refl};
ghost use Rattle.design.specs.Table.{State, draft, sealed, is_open};

// Whether an open book can be written to, as a type.
pub trait Stage {
    ghost state: { State };

    ghost opened: { is_open state ≡ true };
}

// The stage of a draft.
#[derive(Drop)]
pub struct Editable;

impl Stage for Editable {
    ghost state = { draft };

    ghost opened = { refl };
}

// The stage of a sealed table.
#[derive(Drop)]
pub struct Frozen;

impl Stage for Frozen {
    ghost state = { sealed };

    ghost opened = { refl };
}
