//! The templates of generated functions.
ghost use Rattle.std.specs.Prelude.{◌≡◌, IfOk, string_bytes};
ghost use Rattle.cs_generate.specs.GeneratedFile as generated;

use std::alloc::{AllocError, Global};

/// The templates of generated functions. The first, the third and the last have a fault.
#[derive(Clone, Copy)]
pub enum Template {
    /// A constant divided by the parameter.
    Division,
    /// A constant divided by the parameter, if that isn't 0.
    GuardedDivision,
    /// A load through the parameter, which may be null.
    Load,
    /// The difference of the parameters, if it isn't negative.
    Difference,
    /// A sum in a loop.
    Sum,
    /// A load from a freed block.
    FreedBlock,
}

impl Template {
    /// Returns the template of the function with this number, in the file of this seed.
    pub fn of(seed: u64, number: u64) -> Template
        ensures { result ≡ generated.template_of seed number }
    {
        match (u128::from(seed) + u128::from(number)) % 6 {
            0 => Template::Division,
            1 => Template::GuardedDivision,
            2 => Template::Load,
            3 => Template::Difference,
            4 => Template::Sum,
            _ => Template::FreedBlock,
        }
    }

    /// Returns the text after the name of a function with this constant.
    pub fn body(self, alloc: Global, c: u8) -> Result<String, AllocError>
        ensures { IfOk result (λ text. string_bytes text ≡ generated.body_of self c) }
    {
        match self {
            Template::Division => format!(in alloc; "(int x){{return {c}/x;}}"),
            Template::GuardedDivision => format!(in alloc;
                "(int x){{if(x==0)return 0;return {c}/x;}}"
            ),
            Template::Load => format!(in alloc; "(int *p){{if(p)return *p+{c};return *p;}}"),
            Template::Difference => format!(in alloc;
                "(int x,int y){{if(x<y)return {c};return x-y;}}"
            ),
            Template::Sum => format!(in alloc;
                "(int n){{int i;int s=0;for(i=0;i<n;i++)s=s+{c};return s;}}"
            ),
            Template::FreedBlock => format!(in alloc;
                "(void){{int *p=malloc(sizeof(int));if(!p)return 0;*p={c};free(p);return *p;}}"
            ),
        }
    }
}
