ghost use Rattle.std.specs.Prelude.{◌≡◌, ◌<◌, ◌+◌, MatchOption};
ghost use Rattle.induction_order.specs.Binders.{count};

/// The binders around a place of a scheme, the innermost first, without memory of their own.
#[derive(Drop)]
pub(crate) enum Binders<'a> {
    /// There are none.
    Outermost,
    /// A part that binds so many variables, and the binders around it.
    Under {
        binds: usize,
        outer: &'a Binders<'a>,
    },
}

/// The index of a local outside the binders, where none of them binds it.
pub(crate) fn outside(binders: &Binders<'_>, index: usize) -> Option<usize>
    ensures { MatchOption result (index < count binders.now) (λ free. index ≡ free + count binders.now) }
{
    match binders {
        Binders::Outermost => Some(index),
        Binders::Under { binds, outer } => {
            if index < *binds {
                None
            } else {
                outside(outer, index - *binds)
            }
        }
    }
}
