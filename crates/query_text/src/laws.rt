//! Laws that connect the walk over a query with the form of queries.

ghost use Rattle.std.specs.Prelude.{◌≡◌, ℕ};
ghost use Rattle.serde_json.specs.Data.{Data};
ghost use Rattle.query_model.specs.QueryParts.{QueryParts};
ghost use Rattle.query_model.specs.Rules.{IsQuery};
ghost use Rattle.query_text.specs.declared.refusal.QueryRefusal.{QueryRefusal};
ghost use Rattle.query_text.specs.Form.{query_form};
ghost use Rattle.query_text.specs.Limits.{IsLimit};
ghost use Rattle.query_text.specs.Walk.{walk_query};

/// A query that the walk reads is the one that the value stands for.
pub fn accepted_queries_have_the_form()
    ensures { (rank : ℕ) (d : Data) (q : QueryParts) → walk_query rank d ≡ Ok q → query_form rank d ≡ Some q }
{}

/// If a value stands for a query, the walk refuses it only for a limit.
pub fn only_limits_refuse_the_form()
    ensures { (rank : ℕ) (d : Data) (q : QueryParts) (r : QueryRefusal) → query_form rank d ≡ Some q → walk_query rank d ≡ Err r → IsLimit r }
{}

/// If a value stands for a query that keeps the rules, the walk reads that query.
pub fn forms_within_the_limits_are_accepted()
    ensures { (rank : ℕ) (d : Data) (q : QueryParts) → query_form rank d ≡ Some q → IsQuery q → walk_query rank d ≡ Ok q }
{}
