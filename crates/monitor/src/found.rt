// A link as a look-up finds it.
ghost use Rattle.std.specs.Prelude.{◌<◌};

use rules::Link;

// A link, and the place where it stands. That it does so is a fact of the record too, so contracts say it (`Stands`), not the type.
#[derive(Clone, Copy)]
pub(crate) struct Found {
    pub(crate) place: usize,
    pub(crate) link: Link,
    ghost inside: { place < 32 },
}
