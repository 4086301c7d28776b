// A call at the parameter set of a name.
macro_rules! in_set {
    ($name:expr, $($path:ident)::+ ( $($argument:expr),* $(,)? )) => {
        match $name {
            script::SetName::S => $($path)::+::<params::SetS>($($argument),*),
            script::SetName::I => $($path)::+::<params::SetI>($($argument),*),
        }
    };
    ($name:expr, $($path:ident).+ ( $($argument:expr),* $(,)? )) => {
        match $name {
            script::SetName::S => $($path).+::<params::SetS>($($argument),*),
            script::SetName::I => $($path).+::<params::SetI>($($argument),*),
        }
    };
}

pub(crate) use in_set;
