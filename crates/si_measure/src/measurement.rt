// Measurements, and how they are written.
ghost use Rattle.std.specs.Prelude.{◌≡◌, ◌≤◌, IfSome, IfNone};
ghost use Rattle.si_measure.specs.declared.measurement.Kind.{Kind};
ghost use Rattle.si_measure.specs.declared.measurement.Measurement.{Measurement};
ghost use Rattle.si_measure.specs.Measurements.{kind_text, IsNamedBy};

/// No terms of more equations or cells are made.
pub(crate) const LARGEST: u32 = 1_000_000;

/// Which equations between towers are solved.
#[derive(Clone, Copy)]
pub(crate) enum Shape {
    /// One tower.
    One,
    /// Two towers, of the query and of the entry, whose last variables meet.
    Both,
    /// Two towers by two steps at once, which meet one step apart, so that no variable ever meets a
    /// variable.
    Shifted,
}

/// Which terms are solved.
#[derive(Clone, Copy)]
pub(crate) enum Kind {
    /// The two sides of the equations of a shape.
    Towers(Shape),
    /// A term that is drawn at random, and one that was made from it.
    Pair,
}

/// One line of the input.
#[derive(Clone, Copy)]
pub(crate) struct Measurement {
    pub(crate) kind: Kind,
    pub(crate) size: u32,
    pub(crate) times: u32,
}

impl Kind {
    /// The kind with this word.
    fn named(word: &str) -> Option<Kind>
        ensures found { IfSome result (λ kind. word.now ≡ kind_text kind) }
        ensures none { IfNone result ((kind : Kind) → word.now ≡ kind_text kind → ⊥) }
    {
        match word {
            "one" => Some(Kind::Towers(Shape::One)),
            "both" => Some(Kind::Towers(Shape::Both)),
            "shifted" => Some(Kind::Towers(Shape::Shifted)),
            "pair" => Some(Kind::Pair),
            _ => None,
        }
    }
}

impl Measurement {
    /// The measurement that the first three words of a line name.
    pub(crate) fn read(line: &str) -> Option<Measurement>
        ensures { IfSome result (λ measurement. measurement.size ≤ LARGEST) }
    {
        let mut words = line.split_whitespace();
        Measurement::named(words.next()?, words.next()?, words.next()?)
    }

    /// The measurement with these words.
    fn named(kind: &str, size: &str, times: &str) -> Option<Measurement>
        ensures found { IfSome result (IsNamedBy kind.now size.now times.now) }
        ensures none { IfNone result ((measurement : Measurement)
            → IsNamedBy kind.now size.now times.now measurement → ⊥) }
    {
        let kind = Kind::named(kind)?;
        let size = size.parse::<u32>().ok()?;
        let times = times.parse::<u32>().ok()?;
        if size > LARGEST {
            return None;
        }
        Some(Measurement { kind, size, times })
    }
}
