//! The rectangles of which a run was asked, on a map.

#![tactic(auto, using(picture::proofs::Growth::grows_by, picture::proofs::Growth::grows_on, picture::proofs::Growth::grows_not))]

ghost use Rattle.std.specs.Prelude.{OnOk};
ghost use Rattle.picture.specs.Growing.{Grows};

use crate::asked::Asked;
use crate::chart::Chart;
use crate::page::place_on_map;
use crate::shown::spot_of;
use crate::spot::Spot;
use picture::{Picture, Place};
use std::alloc::Global;
use std::io;
use tpoint::{Frac, Rect};

/// Draws the rectangles, each with its number, as far as they are on the chart.
pub(crate) fn draw_areas(
    alloc: Global,
    picture: &mut Picture,
    asked: &[Asked],
    chart: &Chart,
) -> io::Result<()>
    ensures { OnOk result (Grows picture.old picture.new) }
{
    for k in 0..asked.len() {
        draw_asked(alloc, picture, &asked[k], k + 1, chart)?;
    }
    Ok(())
}

/// Draws the rectangle of a query, if it has one.
fn draw_asked(
    alloc: Global,
    picture: &mut Picture,
    one: &Asked,
    number: usize,
    chart: &Chart,
) -> io::Result<()>
    ensures { OnOk result (Grows picture.old picture.new) }
{
    let Some(area) = one.area() else {
        return Ok(());
    };
    let text = format!(in alloc; "{number}")?;
    draw_area(picture, &area, chart, one.class(), text.as_bytes())
}

fn draw_area(
    picture: &mut Picture,
    area: &Rect,
    chart: &Chart,
    class: &[u8],
    number: &[u8],
) -> io::Result<()>
    ensures { OnOk result (Grows picture.old picture.new) }
{
    let Some(low) = nearest_spot(chart, area.x0(), area.y0()) else {
        return Ok(());
    };
    let Some(high) = nearest_spot(chart, area.x1(), area.y1()) else {
        return Ok(());
    };
    let left = place_on_map(&low);
    let right = place_on_map(&high);
    let corner = Place {
        x: left.x,
        y: right.y,
    };
    let width = right.x.saturating_sub(left.x);
    let height = left.y.saturating_sub(right.y);
    let inside = Place {
        x: corner.x.saturating_add(400),
        y: corner.y.saturating_add(1500),
    };
    picture.open(class, number)?;
    picture.rectangle(b"area", corner, width, height)?;
    picture.text(b"tag", inside, number)?;
    picture.close()
}

/// The spot of the chart that is nearest to a position.
fn nearest_spot(chart: &Chart, x: i64, y: i64) -> Option<Spot> {
    let x = nearest(x, chart.west(), chart.span());
    let y = nearest(y, chart.south(), chart.span());
    spot_of(chart, &Frac::from(x), &Frac::from(y))
}

/// The number nearest to another of those at most a span above an edge.
fn nearest(z: i64, edge: i64, span: u64) -> i64 {
    z.max(edge).min(edge.saturating_add_unsigned(span))
}
