//! A picture, element by element.

ghost use Rattle.std.specs.Prelude.{◌≡◌, ◌++◌, flat_map, IfOk, OnOk};
ghost use Rattle.picture.specs.Elements.{arrow_text, begun, circle_text, closed, ends, line_text, measure, opened, picture_begun, picture_ended, point, rectangle_text, sized, units, way_text, words_begun, words_text};

use super::escape::push_escaped;
use super::number::push_hundredths;
use std::alloc::Global;
use std::io::{self, Write};
use std::marker::Model;

/// The head of an arrow, in the colour of its line.
const HEAD: &[u8] =
    b"<defs><marker id=\"head\" viewBox=\"0 0 8 8\" refX=\"7\" refY=\"4\" markerWidth=\"7\" markerHeight=\"7\" \
markerUnits=\"userSpaceOnUse\" orient=\"auto\"><path d=\"M0 0.8L8 4L0 7.2z\" fill=\"context-stroke\"/></marker></defs>\n";

/// A place in a picture, in hundredths of a unit: from the left edge, and from the upper one.
#[derive(Clone, Copy, Debug, PartialEq, Eq)]
pub struct Place {
    pub x: u32,
    pub y: u32,
}

/// A picture that is being drawn: what comes later lies above what came before. A class is a word, or several, of its style.
///
/// Each error is out of memory, and a picture after one isn't whole.
#[derive(Drop)]
pub struct Picture {
    text: Vec<u8>,
}

impl Model for Picture {
    ghost use Rattle.std.specs.Prelude.{ℕ, List};

    ghost Value = { List ℕ };

    ghost view = { λ p. p.text.items };
}

impl Picture {
    /// An empty picture of so many units, with the style sheet in which its classes stand.
    pub fn new(alloc: Global, width: u32, height: u32, style: &[u8]) -> io::Result<Picture>
        ensures { IfOk result (λ p. p ≡ picture_begun width height style.now) }
    {
        let mut text = Vec::new(alloc);
        push_size(&mut text, width, height)?;
        push_escaped(&mut text, style)?;
        text.extend_from_slice(b"</style>\n")?;
        text.extend_from_slice(HEAD)?;
        Ok(Picture { text })
    }

    /// A line from one place to another.
    pub fn line(&mut self, class: &[u8], from: Place, to: Place) -> io::Result<()>
        ensures { OnOk result (self.new ≡ self.old ++ line_text class.now from to) }
    {
        self.begin(b"<line", class)?;
        self.ends(from, to)?;
        self.put(b"/>\n")
    }

    /// A line with a head at its end.
    pub fn arrow(&mut self, class: &[u8], from: Place, to: Place) -> io::Result<()>
        ensures { OnOk result (self.new ≡ self.old ++ arrow_text class.now from to) }
    {
        self.begin(b"<line", class)?;
        self.ends(from, to)?;
        self.put(b" marker-end=\"url(#head)\"/>\n")
    }

    /// A line through these places, in their order.
    pub fn way(&mut self, class: &[u8], places: &[Place]) -> io::Result<()>
        ensures { OnOk result (self.new ≡ self.old ++ way_text class.now places.now) }
    {
        self.begin(b"<polyline", class)?;
        self.put(b" points=\"")?;
        push_points(&mut self.text, places)?;
        self.put(b"\"/>\n")
    }

    /// A circle around a place.
    pub fn circle(&mut self, class: &[u8], center: Place, radius: u32) -> io::Result<()>
        ensures { OnOk result (self.new ≡ self.old ++ circle_text class.now center radius) }
    {
        self.begin(b"<circle", class)?;
        self.measure(b" cx=\"", center.x)?;
        self.measure(b" cy=\"", center.y)?;
        self.measure(b" r=\"", radius)?;
        self.put(b"/>\n")
    }

    /// A rectangle, by its upper left corner and its size.
    pub fn rectangle(
        &mut self,
        class: &[u8],
        corner: Place,
        width: u32,
        height: u32,
    ) -> io::Result<()>
        ensures { OnOk result (self.new ≡ self.old ++ rectangle_text class.now corner width height) }
    {
        self.begin(b"<rect", class)?;
        self.measure(b" x=\"", corner.x)?;
        self.measure(b" y=\"", corner.y)?;
        self.measure(b" width=\"", width)?;
        self.measure(b" height=\"", height)?;
        self.put(b"/>\n")
    }

    /// A text that stands at a place: any bytes, escaped.
    pub fn text(&mut self, class: &[u8], at: Place, text: &[u8]) -> io::Result<()>
        ensures { OnOk result (self.new ≡ self.old ++ words_text class.now at text.now) }
    {
        self.begin_words(class, at)?;
        push_escaped(&mut self.text, text)?;
        self.put(b"</text>\n")
    }

    /// A group begins, which shows a title where the pointer rests on it: any bytes, escaped. `close` ends it.
    pub fn open(&mut self, class: &[u8], title: &[u8]) -> io::Result<()>
        ensures { OnOk result (self.new ≡ self.old ++ opened class.now title.now) }
    {
        self.begin(b"<g", class)?;
        self.put(b"><title>")?;
        push_escaped(&mut self.text, title)?;
        self.put(b"</title>\n")
    }

    /// The group that was opened last ends.
    pub fn close(&mut self) -> io::Result<()>
        ensures { OnOk result (self.new ≡ self.old ++ closed) }
    {
        self.put(b"</g>\n")
    }

    /// The text of the picture.
    pub fn finish(self) -> io::Result<Vec<u8>>
        ensures { IfOk result (λ text. text.items ≡ self ++ picture_ended) }
    {
        let Picture { mut text } = self;
        text.extend_from_slice(b"</svg>\n")?;
        Ok(text)
    }

    /// How a text begins that stands at a place.
    fn begin_words(&mut self, class: &[u8], at: Place) -> io::Result<()>
        ensures { OnOk result (self.new ≡ self.old ++ words_begun class.now at) }
    {
        self.begin(b"<text", class)?;
        self.measure(b" x=\"", at.x)?;
        self.measure(b" y=\"", at.y)?;
        self.put(b">")
    }

    /// How an element begins, and its class.
    fn begin(&mut self, element: &[u8], class: &[u8]) -> io::Result<()>
        ensures { OnOk result (self.new ≡ self.old ++ begun element.now class.now) }
    {
        self.put(element)?;
        self.put(b" class=\"")?;
        push_escaped(&mut self.text, class)?;
        self.put(b"\"")
    }

    /// Where a line begins and ends.
    fn ends(&mut self, from: Place, to: Place) -> io::Result<()>
        ensures { OnOk result (self.new ≡ self.old ++ ends from to) }
    {
        self.measure(b" x1=\"", from.x)?;
        self.measure(b" y1=\"", from.y)?;
        self.measure(b" x2=\"", to.x)?;
        self.measure(b" y2=\"", to.y)
    }

    /// A number of an element, behind what begins it.
    fn measure(&mut self, name: &[u8], n: u32) -> io::Result<()>
        ensures { OnOk result (self.new ≡ self.old ++ measure name.now n) }
    {
        self.put(name)?;
        push_hundredths(&mut self.text, n)?;
        self.put(b"\"")
    }

    fn put(&mut self, bytes: &[u8]) -> io::Result<()>
        ensures { OnOk result (self.new ≡ self.old ++ bytes.now) }
    {
        self.text.extend_from_slice(bytes)?;
        Ok(())
    }
}

/// Adds how a picture begins, before its style sheet.
fn push_size(text: &mut Vec<u8>, width: u32, height: u32) -> io::Result<()>
    ensures { OnOk result (text.new.items ≡ text.old.items ++ sized width height) }
{
    push_units(
        text,
        b"<svg xmlns=\"http://www.w3.org/2000/svg\" viewBox=\"0 0 ",
        width,
    )?;
    push_units(text, b" ", height)?;
    push_units(text, b"\" width=\"", width)?;
    push_units(text, b"\" height=\"", height)?;
    text.extend_from_slice(b"\">\n<style>")?;
    Ok(())
}

/// Adds a number of whole units, behind its name.
fn push_units(text: &mut Vec<u8>, name: &[u8], n: u32) -> io::Result<()>
    ensures { OnOk result (text.new.items ≡ text.old.items ++ units name.now n) }
{
    text.extend_from_slice(name)?;
    write!(text, "{n}")
}

/// Adds the places of a way, one behind another.
fn push_points(text: &mut Vec<u8>, places: &[Place]) -> io::Result<()>
    ensures { OnOk result (text.new.items ≡ text.old.items ++ flat_map point places.now) }
{
    for place in places {
        push_point(text, *place)?;
    }
    Ok(())
}

/// Adds a place of a way.
fn push_point(text: &mut Vec<u8>, place: Place) -> io::Result<()>
    ensures { OnOk result (text.new.items ≡ text.old.items ++ point place) }
{
    push_hundredths(text, place.x)?;
    text.extend_from_slice(b",")?;
    push_hundredths(text, place.y)?;
    text.extend_from_slice(b" ")?;
    Ok(())
}
