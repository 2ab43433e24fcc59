//! What a request says behind the `?` of its target.
ghost use Rattle.std.specs.Prelude.{◌≡◌, IfErr, IfOk, is_some};
ghost use Rattle.form_urlencoded.specs.Form.{raw_pairs};
ghost use Rattle.amo_door.specs.Query.{Faults, Gives, given_of, name_of, parameter_of, value_of, with_value};

use form_urlencoded::raw_pairs;

/// What a request may say there, by its name.
#[derive(Clone, Copy, PartialEq, Eq)]
pub enum Parameter {
    /// `life`: the life of the host that is meant.
    Life,
    /// `by`: the caller.
    By,
    /// `number`: the number that is claimed.
    Number,
    /// `wait`: how many seconds the answer may take.
    Wait,
    /// `until`: what is waited for.
    Until,
    /// `after`: the number of the journal's line behind which to begin.
    After,
}

impl Parameter {
    /// The parameter of this name.
    pub fn read(name: &[u8]) -> Option<Parameter>
        ensures { result ≡ parameter_of name.now }
    {
        if name == b"life".as_slice() {
            Some(Parameter::Life)
        } else if name == b"by".as_slice() {
            Some(Parameter::By)
        } else if name == b"number".as_slice() {
            Some(Parameter::Number)
        } else if name == b"wait".as_slice() {
            Some(Parameter::Wait)
        } else if name == b"until".as_slice() {
            Some(Parameter::Until)
        } else if name == b"after".as_slice() {
            Some(Parameter::After)
        } else {
            None
        }
    }

    /// Its name.
    pub fn name(self) -> &'static str
        ensures { result.now ≡ name_of self }
    {
        match self {
            Parameter::Life => "life",
            Parameter::By => "by",
            Parameter::Number => "number",
            Parameter::Wait => "wait",
            Parameter::Until => "until",
            Parameter::After => "after",
        }
    }
}

/// Why a query is none.
#[derive(Clone, Copy, PartialEq, Eq)]
pub enum QueryFault {
    /// It gives something under a name that is that of no parameter.
    Unknown,
    /// It gives this twice.
    Repeated(Parameter),
}

/// What a query gives, each as it stands there. No value that is taken needs an escape, and none is undone.
#[derive(Clone, Copy)]
pub struct Query<'a> {
    /// The life of the host that is meant.
    pub life: Option<&'a [u8]>,
    /// The caller.
    pub by: Option<&'a [u8]>,
    /// The number that is claimed.
    pub number: Option<&'a [u8]>,
    /// How many seconds the answer may take.
    pub wait: Option<&'a [u8]>,
    /// What is waited for.
    pub until: Option<&'a [u8]>,
    /// The number of the journal's line behind which to begin.
    pub after: Option<&'a [u8]>,
}

impl<'a> Query<'a> {
    /// What this text gives, as `life=9f3a01c2&by=till-7`. An empty piece between two `&` gives nothing.
    pub fn read(text: &'a [u8]) -> Result<Query<'a>, QueryFault>
        ensures ok { IfOk result (λ query. Gives (raw_pairs text.now) (given_of query)) }
        ensures fault { IfErr result (Faults (raw_pairs text.now)) }
    {
        let mut query = Query {
            life: None,
            by: None,
            number: None,
            wait: None,
            until: None,
            after: None,
        };
        let mut pairs = raw_pairs(text);
        while let Some((name, value)) = pairs.next() {
            let Some(parameter) = Parameter::read(name) else {
                return Err(QueryFault::Unknown);
            };
            if query.has(parameter) {
                return Err(QueryFault::Repeated(parameter));
            }
            query = query.with(parameter, value);
        }
        Ok(query)
    }

    /// Whether it gives this.
    pub fn has(&self, parameter: Parameter) -> bool
        ensures { result ≡ is_some (value_of (given_of self.now) parameter) }
    {
        match parameter {
            Parameter::Life => self.life.is_some(),
            Parameter::By => self.by.is_some(),
            Parameter::Number => self.number.is_some(),
            Parameter::Wait => self.wait.is_some(),
            Parameter::Until => self.until.is_some(),
            Parameter::After => self.after.is_some(),
        }
    }

    /// The same, and this.
    fn with(self, parameter: Parameter, value: &'a [u8]) -> Query<'a>
        ensures { given_of result ≡ with_value (given_of self.entry) parameter value.now }
    {
        let value = Some(value);
        match parameter {
            Parameter::Life => Query {
                life: value,
                ..self
            },
            Parameter::By => Query { by: value, ..self },
            Parameter::Number => Query {
                number: value,
                ..self
            },
            Parameter::Wait => Query {
                wait: value,
                ..self
            },
            Parameter::Until => Query {
                until: value,
                ..self
            },
            Parameter::After => Query {
                after: value,
                ..self
            },
        }
    }
}
