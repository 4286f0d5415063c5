//! The syntax tree of a file, before anything is known of its types: a variant for each production of the grammar, with
//! its parts and its position.

pub mod declaration;
pub mod declaration_height;
pub mod expression;
pub mod external;
pub mod external_height;
pub mod height;
pub mod name;
pub mod operator;
pub mod statement;
pub mod statement_height;
pub mod written_type;
