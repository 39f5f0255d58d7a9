//! Consignments in the lists of a branch and of head office.

ghost use Rattle.std.specs.Prelude.{◌≡◌, false, IfOk};
ghost use Rattle.serde_json.specs.View.{view};
ghost use Rattle.shop_views.specs.Consignments.{seen_listed, arrival_data, arrival_text, sent_data, sent_text, transit_data, transit_text};
ghost use Rattle.shop_views.specs.Lists.{IsRow};

use crate::{Field, object_of};
use serde_json::Value;
use shop_types::{BranchNo, ConsignmentNo, FilmNo};
use std::alloc::{AllocError, Global};

/// A consignment with the films of its lines.
#[derive(Drop)]
pub struct ListedConsignment {
    pub source: BranchNo,
    pub addressee: BranchNo,
    /// The number among the consignments from this sender to this addressee.
    pub number: ConsignmentNo,
    pub received: bool,
    /// The films of the consignment's lines, in the lines' order.
    pub films: Vec<FilmNo>,
}

fn arrival_value(alloc: Global, it: &ListedConsignment) -> Result<Value, AllocError>
    ensures { IfOk result (λ v. view v ≡ arrival_data (seen_listed it.now)) }
{
    object_of(
        alloc,
        &[
            Field::Films("films", it.films.as_slice()),
            Field::Number("from", it.source.get() as u64),
            Field::Number("number", it.number.get() as u64),
            Field::Flag("received", it.received),
        ],
    )
}

fn sent_value(alloc: Global, it: &ListedConsignment) -> Result<Value, AllocError>
    ensures { IfOk result (λ v. view v ≡ sent_data (seen_listed it.now)) }
{
    object_of(
        alloc,
        &[
            Field::Films("films", it.films.as_slice()),
            Field::Number("number", it.number.get() as u64),
            Field::Number("to", it.addressee.get() as u64),
        ],
    )
}

fn transit_value(alloc: Global, it: &ListedConsignment) -> Result<Value, AllocError>
    ensures { IfOk result (λ v. view v ≡ transit_data (seen_listed it.now)) }
{
    object_of(
        alloc,
        &[
            Field::Films("films", it.films.as_slice()),
            Field::Number("from", it.source.get() as u64),
            Field::Number("number", it.number.get() as u64),
            Field::Number("to", it.addressee.get() as u64),
        ],
    )
}

/// Makes the consignment's object in the list of its addressee's arrivals.
pub fn arrival_row(alloc: Global, it: &ListedConsignment) -> Result<Value, AllocError>
    ensures { IfOk result (λ v. IsRow arrival_data arrival_text (seen_listed it.now) (view v)) }
{
    arrival_value(alloc, it)
}

/// Makes the consignment's object in the list of its sender's consignments. It doesn't show whether the consignment is
/// received.
pub fn sent_row(alloc: Global, it: &ListedConsignment) -> Result<Value, AllocError>
    ensures { IfOk result (λ v. IsRow sent_data sent_text (seen_listed it.now) (view v)) }
{
    sent_value(alloc, it)
}

/// Makes the consignment's object in the list of all consignments that are under way.
pub fn transit_row(alloc: Global, it: &ListedConsignment) -> Result<Value, AllocError>
    ensures { IfOk result (λ v. IsRow transit_data transit_text (seen_listed it.now) (view v)) }
{
    transit_value(alloc, it)
}
