// The forms of a line by name, and the number of each in a program table (docs/LAYOUT.md), for the code. Every place that asks for a form
// goes by a `match` over all of them.
ghost use Rattle.std.specs.Prelude.{◌≡◌};
ghost use Rattle.rules.specs.Forms.{form_number, form_of};

// The forms, each with its number. The kind stands out of the order of the numbers: so the compiler makes one jump of `Form::from` and the
// `match` after it. In that order it would first compute the variant.
#[derive(Clone, Copy, Debug, PartialEq, Eq)]
pub enum Form {
    NoForm = 0, // a number that no form has
    Thread = 2,
    Method = 3,
    Kind = 1,
    Give = 4,
    Value = 5,
    Field = 6,
    Swap = 7,
    Call = 8,
    New = 9,
    Cast = 10,
    Spawn = 11,
    Send = 12,
    Recv = 13,
    Copy = 14,
}

impl Form {
    pub fn number(self) -> u16
        ensures { result ≡ form_number self }
    {
        self as u16
    }
}

// The form that has this number.
impl From<u16> for Form {
    ghost from_gives = { λ n f. f ≡ form_of n };

    fn from(n: u16) -> Form {
        match n {
            1 => Form::Kind,
            2 => Form::Thread,
            3 => Form::Method,
            4 => Form::Give,
            5 => Form::Value,
            6 => Form::Field,
            7 => Form::Swap,
            8 => Form::Call,
            9 => Form::New,
            10 => Form::Cast,
            11 => Form::Spawn,
            12 => Form::Send,
            13 => Form::Recv,
            14 => Form::Copy,
            _ => Form::NoForm,
        }
    }
}
