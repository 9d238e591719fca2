//! Interpolations.

ghost use Rattle.std.specs.Prelude.{◌≡◌, ◌↔◌, Some};
ghost use Rattle.tpoint.specs.Interps.{interp_name};

/// Where a moving point is between its listed instants.
#[derive(Clone, Copy, Debug, PartialEq, Eq, Hash)]
pub enum Interp {
    /// Nowhere.
    Discrete,
    /// Where it was last listed.
    Step,
    /// On its way, straight and at one speed, from one listed position to the next.
    Linear,
}

impl Interp {
    /// Its name in documents and answers.
    pub fn name(self) -> &'static str
        ensures { result.now ≡ interp_name self }
    {
        match self {
            Interp::Discrete => "Discrete",
            Interp::Step => "Step",
            Interp::Linear => "Linear",
        }
    }

    /// The interpolation of this name, or None where none has it.
    pub fn from_name(name: &str) -> Option<Interp>
        ensures { (i : Interp) → (name.now ≡ interp_name i) ↔ (result ≡ Some i) }
    {
        match name {
            "Discrete" => Some(Interp::Discrete),
            "Step" => Some(Interp::Step),
            "Linear" => Some(Interp::Linear),
            _ => None,
        }
    }
}
