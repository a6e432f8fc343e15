//! The velocity sets by name.

ghost use Rattle.std.specs.Prelude.{◌≡◌};
ghost use Rattle.lbm_model.specs.Sets.{stencil_of, name_of, set_named};

pub use lbm_sets::{D3Q15, D3Q27};
use lbm_space::VelocitySet;
pub use lbm_space::{D2Q9, D3Q19};

/// The velocity set of a case.
#[derive(Clone, Copy, Debug, PartialEq, Eq)]
pub enum SetKind {
    /// Nine directions in the plane.
    D2Q9,
    /// Nineteen directions in space.
    D3Q19,
    /// Fifteen directions in space.
    D3Q15,
    /// Twenty-seven directions in space.
    D3Q27,
}

/// Calls a generic function at the type of a velocity set: `at_set!(kind, f::<T>(x))` is `f::<V, T>(x)`.
#[macro_export]
macro_rules! at_set {
    ($kind:expr, $f:ident $(::<$($t:ty),*>)? ($($x:expr),* $(,)?)) => {
        match $kind {
            $crate::SetKind::D2Q9 => $f::<$crate::sets::D2Q9 $($(, $t)*)?>($($x),*),
            $crate::SetKind::D3Q19 => $f::<$crate::sets::D3Q19 $($(, $t)*)?>($($x),*),
            $crate::SetKind::D3Q15 => $f::<$crate::sets::D3Q15 $($(, $t)*)?>($($x),*),
            $crate::SetKind::D3Q27 => $f::<$crate::sets::D3Q27 $($(, $t)*)?>($($x),*),
        }
    };
}

impl SetKind {
    /// The name of the set in a case file.
    pub fn name(self) -> &'static str
        ensures { result.now ≡ name_of self }
    {
        match self {
            SetKind::D2Q9 => "D2Q9",
            SetKind::D3Q19 => "D3Q19",
            SetKind::D3Q15 => "D3Q15",
            SetKind::D3Q27 => "D3Q27",
        }
    }

    /// The set of this name, if there is one.
    pub fn named(name: &str) -> Option<SetKind>
        ensures { result ≡ set_named name.now }
    {
        match name {
            "D2Q9" => Some(SetKind::D2Q9),
            "D3Q19" => Some(SetKind::D3Q19),
            "D3Q15" => Some(SetKind::D3Q15),
            "D3Q27" => Some(SetKind::D3Q27),
            _ => None,
        }
    }

    /// The number of dimensions, 2 or 3.
    pub fn dimension(self) -> usize
        ensures { result ≡ (stencil_of self).dimension }
    {
        at_set!(self, dimension_of())
    }

    /// The number of directions.
    pub fn directions(self) -> u32
        ensures { result ≡ (stencil_of self).directions }
    {
        at_set!(self, directions_of())
    }
}

fn dimension_of<V: VelocitySet>() -> usize
    ensures { result ≡ V.stencil.dimension }
{
    V::DIM
}

fn directions_of<V: VelocitySet>() -> u32
    ensures { result ≡ V.stencil.directions }
{
    V::Q as u32
}
