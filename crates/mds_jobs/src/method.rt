//! The method of a substitution job.

ghost use Rattle.std.specs.Prelude.{◌≡◌, ◌↔◌, IsTrue, MatchOption};
ghost use Rattle.mds_world.specs.Lists.{Member};
ghost use Rattle.mds_jobs.specs.Jobs.{method_code, methods};

/// How a substitution job gets its values. MDFF Specification, appendix of method flags; a job may have four of them.
#[derive(Clone, Copy, Debug, PartialEq, Eq)]
pub enum Method {
    /// 14: the values of the nearest like day.
    LikeDay,
    /// 15: the mean of the values of the like days.
    MeanOfLikeDays,
    /// 17: the line between the values before and after the intervals.
    Interpolation,
    /// 19: zeros.
    Zeros,
}

impl Method {
    ghost use Rattle.mds_jobs.specs.declared.method.Method.{Method as AMethod};

    /// A law: `==` says whether two methods are the same.
    pub fn one_equality()
        ensures { (a b : AMethod) → IsTrue (⟦<Method as PartialEq>⟧.eq a b) ↔ (a ≡ b) }
    {}

    /// The method with this code. `None` if a job may not have it.
    pub fn of_code(code: u8) -> Option<Method>
        ensures { MatchOption result (Member code methods → ⊥) (λ method. code ≡ method_code method) }
    {
        // decides: which methods may a job have?
        match code {
            14 => Some(Method::LikeDay),
            15 => Some(Method::MeanOfLikeDays),
            17 => Some(Method::Interpolation),
            19 => Some(Method::Zeros),
            _ => None,
        }
    }
}
