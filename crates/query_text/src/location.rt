//! Locations in a query: where a refusal is. `search_run` prints their four numbers.
ghost use Rattle.std.specs.Prelude.{◌≡◌};
ghost use Rattle.query_text.specs.Locations as locations;

/// A part of a query: a member of its object.
#[derive(Clone, Copy, Debug, PartialEq, Eq)]
pub enum Part {
    Variables,
    Regions,
    Constraints,
}

impl Part {
    /// 1, 2 or 3, in this order.
    pub fn number(self) -> u8
        ensures { result ≡ locations.part_number self }
    {
        match self {
            Part::Variables => 1,
            Part::Regions => 2,
            Part::Constraints => 3,
        }
    }
}

/// A field of an item: a member of the object of a variable, of a region or of a constraint.
#[derive(Clone, Copy, Debug, PartialEq, Eq)]
pub enum Field {
    VariableName,
    VariableFrom,
    VariableTo,
    RegionName,
    RegionAt,
    RegionLength,
    ConstraintAgg,
    ConstraintOf,
    ConstraintExpr,
    ConstraintCmp,
    ConstraintTo,
}

impl Field {
    /// The part whose items have the field.
    pub fn part(self) -> Part
        ensures { result ≡ locations.part_of self }
    {
        match self {
            Field::VariableName | Field::VariableFrom | Field::VariableTo => Part::Variables,
            Field::RegionName | Field::RegionAt | Field::RegionLength => Part::Regions,
            Field::ConstraintAgg
            | Field::ConstraintOf
            | Field::ConstraintExpr
            | Field::ConstraintCmp
            | Field::ConstraintTo => Part::Constraints,
        }
    }

    /// Its number among the fields of an item, from 1.
    pub fn number(self) -> u8
        ensures { result ≡ locations.field_number self }
    {
        match self {
            Field::VariableName | Field::RegionName | Field::ConstraintAgg => 1,
            Field::VariableFrom | Field::RegionAt | Field::ConstraintOf => 2,
            Field::VariableTo | Field::RegionLength | Field::ConstraintExpr => 3,
            Field::ConstraintCmp => 4,
            Field::ConstraintTo => 5,
        }
    }
}

/// A location in a query, as four numbers. Each counts from 1, and 0 means none.
#[derive(Clone, Copy, Debug, PartialEq, Eq)]
pub struct Location {
    /// 1 for the variables, 2 for the regions, 3 for the constraints.
    pub part: u8,
    /// The item of the part.
    pub item: u32,
    /// The field of the item, in the order of `Field`.
    pub field: u8,
    /// The dimension, in `at` and `length` of a region.
    pub sub: u32,
}

impl Location {
    /// The query as a whole.
    pub fn query() -> Location
        ensures { result ≡ locations.query }
    {
        Location {
            part: 0,
            item: 0,
            field: 0,
            sub: 0,
        }
    }

    /// A part as a whole.
    pub fn part(part: Part) -> Location
        ensures { result ≡ locations.part part }
    {
        Location::item(part, 0)
    }

    /// The i-th item of a part, from 1.
    pub fn item(part: Part, i: u32) -> Location
        ensures { result ≡ locations.item part i }
    {
        Location {
            part: part.number(),
            item: i,
            field: 0,
            sub: 0,
        }
    }

    /// A field of the i-th item, from 1, of its part.
    pub fn field(field: Field, i: u32) -> Location
        ensures { result ≡ locations.field field i }
    {
        Location {
            part: field.part().number(),
            item: i,
            field: field.number(),
            sub: 0,
        }
    }

    /// The d-th dimension, from 1, of a field.
    pub fn dimension(self, d: u32) -> Location
        ensures { result ≡ locations.dimension self d }
    {
        Location { sub: d, ..self }
    }
}
