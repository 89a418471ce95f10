//! A value without bytes that stands for what an image tells.
ghost use Rattle.std.specs.Prelude.{◌≡◌, [], ◌∷◌, IfOk};
ghost use Rattle.plain_hub.specs.Base.{told};

use crate::Base;
use atomic_table::{Badge, Seat, Table, TableRule};
use outside::{Image, NoMemory};
use std::alloc::Global;
use std::marker::{Brand, Model, PhantomData};

/// What one call names, for contracts alone.
trait Naming {
    ghost use Rattle.plain_hub.specs.declared.base.Base.{Base};

    ghost base: { Base };
}

impl Naming for Brand {
    ghost use Rattle.plain_hub.specs.Base.{nothing};

    ghost base = { nothing };
}

// The rule of a table that only says what it was made for.
struct Names<J> {
    of: PhantomData<J>,
}

impl<J: Naming> TableRule<u8, Base, ()> for Names<J> {
    ghost holds = { λ _ _. Unit {0} };

    ghost first = { λ _. J.base };
}

/// What an image tells, as contracts see it. An image that is dropped leaves its marks as they are.
#[derive(Drop)]
pub struct Mark {
    badge: Badge<Base>,
}

impl Model for Mark {
    ghost use Rattle.plain_hub.specs.declared.base.Base.{Base};
    ghost use Rattle.plain_hub.specs.Base.{first_of};

    ghost Value = { Base };

    ghost view = { λ m. first_of m.badge.views };
}

impl Mark {
    /// A mark of what this image tells.
    pub fn of<I: Image>(alloc: Global, image: &I) -> Result<Mark, NoMemory>
        ensures { IfOk result (λ m. m ≡ told (I.size image.now) (I.content image.now)) }
    {
        let badge = named::<Brand, I>(alloc, image)?;
        Ok(Mark { badge })
    }
}

fn named<J: Naming, I>(alloc: Global, image: &I) -> Result<Badge<Base>, NoMemory>
    ensures { IfOk result (λ b. b.views ≡ J.base ∷ []) }
{
    let _ = image;
    let (table, seat): (Table<u8, Base, (), Names<J>, Global>, Seat<u8, Base>) = Table::of_words(
        alloc,
        &[0],
        &(),
    )?;
    drop(table);
    Ok(seat.into_badge())
}
