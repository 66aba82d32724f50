/// An argument in the form that help shows, with what help says of it: `argument!(--"min-m" <M> "The least memory")` is an
/// option with a value, `argument!(--"json" "Write JSON")` one without, `argument!(SECONDS "How long")` is one word, and
/// `argument!(FILE.. 0 "Files")` are that many words or more. Fields of `Argument` may follow, as `default: Some("8")`.
#[macro_export]
macro_rules! argument {
    (--$name:literal <$value:ident> $($rest:tt)+) => {
        $crate::argument!(@ $name, $crate::Form::Value(stringify!($value)), $($rest)+)
    };
    (--$name:literal $($rest:tt)+) => {
        $crate::argument!(@ $name, $crate::Form::Flag, $($rest)+)
    };
    ($name:ident.. $least:literal $($rest:tt)+) => {
        $crate::argument!(@ stringify!($name), $crate::Form::Words($least), $($rest)+)
    };
    ($name:ident $($rest:tt)+) => {
        $crate::argument!(@ stringify!($name), $crate::Form::Word, $($rest)+)
    };
    (@ $name:expr, $form:expr, $help:literal $(, $field:ident: $given:expr)*) => {
        $crate::Argument { name: $name, form: $form, help: $help, $($field: $given,)* ..$crate::Argument::PLAIN }
    };
}
