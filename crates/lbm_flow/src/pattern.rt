// The types of the patterns by their names.

// Calls a generic function at the type of the pattern that is asked for: `at_pattern!(kind, V, A, f::<T>(x), g::<V, T>(y))` is
// `f::<V, A, P, T>(x)` where P is a propagation over arrays, and `g::<V, T>(y)` for tiles. The caller imports the patterns.
macro_rules! at_pattern {
    ($kind:expr, $v:ty, $a:ty, $f:ident ::<$($t:ty),*> ($($x:expr),* $(,)?), $g:ident ::<$($s:ty),*> ($($y:expr),* $(,)?) $(,)?) => {
        match $kind {
            PatternKind::Two => $f::<$v, $a, TwoLattices<$a> $(, $t)*>($($x),*),
            PatternKind::Swap => $f::<$v, $a, SwapPasses $(, $t)*>($($x),*),
            PatternKind::Grid => $f::<$v, $a, GridSweeps<$a> $(, $t)*>($($x),*),
            PatternKind::Aa => $f::<$v, $a, AaSteps $(, $t)*>($($x),*),
            PatternKind::Tiles => $g::<$($s),*>($($y),*),
        }
    };
}

pub(crate) use at_pattern;
