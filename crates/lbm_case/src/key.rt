//! The keys of a case file.

ghost use Rattle.std.specs.Prelude.{◌≡◌};
ghost use Rattle.std.specs.Str.{bytes_eq};
ghost use Rattle.lbm_case.specs.Keys.{name_of, all_keys, required_keys, is_known};

/// A key of a case file.
#[derive(Clone, Copy, Debug, PartialEq, Eq)]
pub enum Key {
    /// The velocity set.
    Set,
    /// The rate of relaxation, p over q.
    Omega,
    /// The drawing of the cells.
    Map,
    /// The number of layers of the drawing.
    Layers,
    /// The first density of a plain fluid cell.
    Density,
    /// What each step of a digit adds to it.
    Digit,
    /// The first momentum of each fluid cell.
    Momentum,
    /// The force on the fluid.
    Force,
    /// The numerator of the second rate, over q.
    OmegaMinus,
    /// The velocity of the moving walls.
    Wall,
}

const ALL: [Key; 10] = [
    Key::Set,
    Key::Omega,
    Key::Map,
    Key::Layers,
    Key::Density,
    Key::Digit,
    Key::Momentum,
    Key::Force,
    Key::OmegaMinus,
    Key::Wall,
];

const REQUIRED: [Key; 3] = [Key::Set, Key::Omega, Key::Map];

impl Key {
    /// The name of the key, as it stands in the file.
    pub fn name(self) -> &'static str
        ensures { result.now ≡ name_of self }
    {
        match self {
            Key::Set => "set",
            Key::Omega => "omega",
            Key::Map => "map",
            Key::Layers => "layers",
            Key::Density => "density",
            Key::Digit => "digit",
            Key::Momentum => "momentum",
            Key::Force => "force",
            Key::OmegaMinus => "omega_minus",
            Key::Wall => "wall",
        }
    }

    /// The keys in their order.
    #[tactic(auto, unfolding(crate::specs::Keys::all_keys))]
    pub(crate) fn all() -> &'static [Key]
        ensures { result.now ≡ all_keys }
    {
        &ALL
    }

    /// The keys that have to be there, in their order.
    #[tactic(auto, unfolding(crate::specs::Keys::required_keys))]
    pub(crate) fn required() -> &'static [Key]
        ensures { result.now ≡ required_keys }
    {
        &REQUIRED
    }

    /// Whether the key is written so.
    pub(crate) fn is_written(self, name: &str) -> bool
        ensures { result ≡ bytes_eq name.now (name_of self) }
    {
        name == self.name()
    }
}

/// Whether a key is written so.
pub(crate) fn is_known(name: &str) -> bool
    ensures { result ≡ is_known name.now }
{
    Key::all().iter().any(|key| key.is_written(name))
}
