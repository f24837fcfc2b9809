//! What is answered.

use std::marker::Brand;

/// What is answered: an input, by answers after what a writer holds. Each call picks it.
pub trait Job {
    ghost use Rattle.std.specs.Prelude.{List, Option, ℕ};
    ghost use Rattle.json_lines.specs.Lines.{Says};

    // What it is to answer a line.
    ghost says: { Says };

    // The bytes of all lines, where they are known.
    ghost input: { Option (List ℕ) };

    // What the writer held before.
    ghost before: { Option (List ℕ) };

    // The most bytes of a line that is read.
    ghost most: { ℕ };
}

/// The reader of an input, as it is before anything is read. Each call picks it.
pub trait ReadFrom<R> {
    ghost use Rattle.std.specs.Prelude.{Option};

    // The reader, where it is known.
    ghost reader: { Option R };
}

/// The writer of answers, as it is before anything is written. Each call picks it.
pub trait WrittenTo<W> {
    ghost use Rattle.std.specs.Prelude.{Option};

    // The writer, where it is known.
    ghost writer: { Option W };
}

impl Job for Brand {
    ghost use Rattle.std.specs.Prelude.{None, ⊤};

    ghost says = { λ _ _ _. ⊤ };

    ghost input = { None };

    ghost before = { None };

    ghost most = { 0 };
}

impl<R> ReadFrom<R> for Brand {
    ghost use Rattle.std.specs.Prelude.{None};

    ghost reader = { None };
}

impl<W> WrittenTo<W> for Brand {
    ghost use Rattle.std.specs.Prelude.{None};

    ghost writer = { None };
}
