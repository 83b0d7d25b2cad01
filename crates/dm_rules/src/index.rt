//! A reading, with what answers for each definition without going through the unit again.

ghost use Rattle.std.specs.Prelude.{◌≡◌, ℕ, ◌==◌, find, map, option_map, slice_get, IfOk, List as Sequence};
ghost use Rattle.std.specs.Option.{option_copied};
ghost use Rattle.std.specs.Coded.{codes};
ghost use Rattle.dm_tree.specs.contracts.tree.Core as core;
ghost use Rattle.dm_tree.specs.contracts.tree.Initial as initial;
ghost use Rattle.dm_tree.specs.contracts.tree.Local as local;
ghost use Rattle.dm_token.specs.declared.unit.Read.{Read as SeenRead};
ghost use Rattle.dm_token.specs.declared.expansion.Expansion.{Expansion as SeenExpansion};
ghost use Rattle.dm_runs.specs.Listings.{items_at, runs_at};
ghost use Rattle.dm_runs.specs.Runs as seen;
ghost use Rattle.dm_runs.specs.Spans.{positions};
ghost use Rattle.dm_rules.specs.Instances.{AreOf};
ghost use Rattle.dm_rules.specs.Lines as lines;
ghost use Rattle.dm_rules.specs.Lines.{first_position, is_between};
ghost use Rattle.dm_rules.specs.Listing.{is_expansion_at, name_if, passes_if};
ghost use Rattle.dm_rules.specs.Places as places;
ghost use Rattle.dm_rules.specs.Places.{is_inside, position};
ghost use Rattle.dm_rules.specs.Rules as rules;
ghost use Rattle.dm_rules.specs.Tables.{AreTables};
ghost use Rattle.dm_rules.specs.Uses as uses;
ghost use Rattle.dm_runs.specs.declared.run.Run.{Run as SeenRun};

use crate::instances::Instances;
use crate::listing::{expansions, readings};
use crate::places::Places;
use crate::tables::Tables;
use dm_mentions::{Event, Mentions};
use dm_reading::Reading;
use dm_runs::{ByDirective, Run, Runs, is_file};
use dm_token::{Definition, Expansion, Memory, Place, Read, Text};
use std::alloc::Global;

/// A reading, with what looks definitions up in it.
#[derive(Drop)]
pub struct Index<'a> {
    pub reading: &'a Reading,
    pub runs: Runs,
    mentions: Mentions<'a>,
    readings: ByDirective<u32>,
    expansions: ByDirective<u32>,
    places: Places<'a>,
    ghost has_runs: { (file hash : ℕ) → runs_at runs file hash ≡ seen.runs_of reading.now.pp reading.now.tokens file hash },
    ghost has_mentions: { mentions.pp.now ≡ reading.now.pp },
    ghost has_readings: { (file hash : ℕ) → items_at readings file hash ≡ positions (λ (one : SeenRead). seen.is_at file hash one.definition) 0 reading.now.pp.read },
    ghost has_expansions: { (file hash : ℕ) → items_at expansions file hash ≡ positions (λ (one : SeenExpansion). is_expansion_at file hash reading.now.pp.read one) 0 reading.now.pp.expansions },
    ghost has_tokens: { places.tokens.now ≡ reading.now.pp.tokens },
    ghost has_externals: { places.externals.now ≡ reading.now.core.externals } by { Prim.hlevel (codes, core.the_row.coded, initial.the_row.coded, local.the_row.coded) },
}

impl<'a> Index<'a> {
    /// That of a reading, made in one walk over its lists. Where one of these has more than 4,294,967,294 items, that counts as
    /// want of memory.
    pub fn of(alloc: Global, reading: &'a Reading) -> Result<Index<'a>, Memory>
        ensures { IfOk result (λ made. made.reading.now ≡ reading.now) }
    {
        let pp = &reading.pp;
        let runs = Runs::of(alloc, pp, reading.tokens.items())?;
        let mentions = Mentions::of(alloc, pp)?;
        let readings = readings(alloc, pp.read.items())?;
        let expansions = expansions(alloc, pp.read.items(), pp.expansions.items())?;
        let places = Places::of(alloc, pp.tokens.items(), reading.core.externals.items())?;
        Ok(Index {
            reading,
            runs,
            mentions,
            readings,
            expansions,
            places,
        })
    }

    /// A reading with what is known of it, which takes no walk.
    pub fn with_tables(reading: &'a Reading, tables: Tables) -> Index<'a>
        requires { AreTables reading.now tables }
        ensures { result.reading.now ≡ reading.now }
    {
        let pp = &reading.pp;
        let mentions = Mentions::with_tables(pp, tables.mentions);
        let externals = reading.core.externals.items();
        let places = Places::with_counts(pp.tokens.items(), externals, tables.places);
        Index {
            reading,
            runs: tables.runs,
            mentions,
            readings: tables.readings,
            expansions: tables.expansions,
            places,
        }
    }

    /// What is known of the reading, apart from it.
    pub fn into_tables(self) -> Tables
        ensures { AreTables self.entry.reading.now result }
    {
        Tables {
            runs: self.runs,
            mentions: self.mentions.into_tables(),
            readings: self.readings,
            expansions: self.expansions,
            places: self.places.into_counts(),
        }
    }

    /// The runs of a definition.
    pub fn runs_of(&self, definition: &Definition) -> &[Run]
        ensures { result.now ≡ uses.runs_in definition.now self.now.reading.now }
    {
        self.runs
            .of_definition(definition.place.file, definition.hash)
    }

    /// The positions of the readings of a definition.
    fn readings_of(&self, definition: &Definition) -> &[u32]
        ensures { result.now ≡ positions (uses.is_reading definition.now) 0 self.now.reading.now.pp.read }
    {
        self.readings
            .of_definition(definition.place.file, definition.hash)
    }

    /// Whether the unit reads a definition.
    pub fn reads(&self, definition: &Definition) -> bool
        ensures { result ≡ uses.reads definition.now self.now.reading.now }
    {
        !self.readings_of(definition).is_empty()
    }

    /// The positions of the expansions of a definition.
    fn expansions_of(&self, definition: &Definition) -> &[u32]
        ensures { result.now ≡ positions (uses.is_expansion definition.now self.now.reading.now.pp.read) 0 self.now.reading.now.pp.expansions }
    {
        self.expansions
            .of_definition(definition.place.file, definition.hash)
    }

    /// A definition as the unit reads it first.
    fn first_reading(&self, definition: &Definition) -> Option<&Read>
        ensures { option_copied result ≡ find (uses.is_reading definition.now) self.now.reading.now.pp.read }
    {
        match first(self.readings_of(definition)) {
            None => None,
            Some(number) => reading_at(self.reading.pp.read.items(), number),
        }
    }

    /// The position of the first reading of the definition whose `#` is this byte of a file.
    fn first_at(&self, file: u32, hash: u32) -> Option<u32>
        ensures { result ≡ first_position (λ (one : SeenRead). seen.is_at file hash one.definition) 0 self.now.reading.now.pp.read }
    {
        first(self.readings.of_definition(file, hash))
    }

    /// The first definition that the unit reads of those in a file whose `#` is one of these bytes. Each byte is looked up.
    pub fn first_between(&self, file: u32, from: u32, to: u32) -> Option<&Definition>
        ensures { option_copied result ≡ find (is_between file from to) (map (λ (one : SeenRead). one.definition) self.now.reading.now.pp.read) }
    {
        let mut found = None;
        for hash in from..to {
            found = least(found, self.first_at(file, hash));
        }
        match found {
            None => None,
            Some(number) => definition_at(self.reading.pp.read.items(), number),
        }
    }

    /// The first expansion of a definition.
    fn first_expansion(&self, definition: &Definition) -> Option<&Expansion>
        ensures { option_copied result ≡ find (uses.is_expansion definition.now self.now.reading.now.pp.read) self.now.reading.now.pp.expansions }
    {
        match first(self.expansions_of(definition)) {
            None => None,
            Some(number) => expansion_at(self.reading.pp.expansions.items(), number),
        }
    }

    /// The first run of the first expansion of a definition.
    pub fn first_run(&self, definition: &Definition) -> Option<&Run>
        ensures { option_map (λ run. run.now) result ≡ uses.run_of_first (uses.runs_in definition.now self.now.reading.now) (uses.expansions_in definition.now self.now.reading.now) }
    {
        match self.first_expansion(definition) {
            None => None,
            Some(one) => run_of(self.runs_of(definition), one.instance),
        }
    }

    /// How many external declarations end before a definition, where the unit reads it first.
    pub fn externals_behind(&self, definition: &Definition) -> u32
        ensures { result ≡ places.externals_behind definition.now self.now.reading.now }
    {
        match self.first_reading(definition) {
            None => 0,
            Some(read) => self.places.externals_before(read.before),
        }
    }

    /// Whether a definition is expanded in the unit.
    pub fn is_used(&self, definition: &Definition) -> bool
        ensures { result ≡ rules.is_used definition.now self.now.reading.now }
    {
        !self.expansions_of(definition).is_empty()
    }

    /// The name of the first expansion that one of these runs is of.
    pub fn first_with(&self, definition: &Definition, instances: &Instances) -> Option<Place>
        ensures { (runs : Sequence SeenRun) → AreOf runs instances.now → result ≡ uses.first_with definition.now runs self.now.reading.now }
    {
        let expansions = self.reading.pp.expansions.items();
        let numbers = self.expansions_of(definition);
        for number in numbers {
            if let Some(place) = name_with_run(expansions, *number, instances) {
                return Some(place);
            }
        }
        None
    }

    /// The first expansion that leaves nothing of its own.
    pub(crate) fn gone(
        &self,
        alloc: Global,
        definition: &Definition,
    ) -> Result<Option<Place>, Memory>
        ensures { IfOk result (λ place. place ≡ rules.gone_in definition.now self.now.reading.now) }
    {
        let instances = Instances::of(alloc, self.runs_of(definition))?;
        let expansions = self.reading.pp.expansions.items();
        let numbers = self.expansions_of(definition);
        for number in numbers {
            if let Some(place) = name_if_gone(expansions, *number, &instances) {
                return Ok(Some(place));
            }
        }
        Ok(None)
    }

    /// Another definition of a definition's name or one more reading of it, or an `#undef` of the name.
    pub(crate) fn again(&self, definition: &Definition) -> Option<Place>
        ensures { result ≡ rules.again_in definition.now self.now.reading.now }
    {
        if !self.reads(definition) {
            return None;
        }
        let event = self
            .mentions
            .again(definition.place.file, definition.hash, &definition.name)?;
        self.place_of(definition, event)
    }

    /// The place of an event that concerns a definition's name.
    fn place_of(&self, definition: &Definition, event: Event) -> Option<Place>
        ensures { result ≡ rules.place_of_event definition.now self.now.reading.now.pp event }
    {
        match event {
            Event::Defined(number) => {
                let one = self.reading.pp.read.items().get(number as usize)?;
                Some(place_of_definition(definition, &one.definition))
            }
            Event::Undefined(number) => {
                let one = self.reading.pp.undefined.items().get(number as usize)?;
                Some(one.place)
            }
        }
    }

    /// The first use of a name by a directive.
    pub(crate) fn directive_use(&self, name: &Text) -> Option<Place>
        ensures { result ≡ rules.use_in name.now self.now.reading.now }
    {
        self.mentions.directive_use(name)
    }

    /// The first token that is a definition's name, if the unit reads the definition.
    pub(crate) fn name(&self, definition: &Definition) -> Option<Place>
        ensures { result ≡ rules.name_in definition.now self.now.reading.now }
    {
        if self.reads(definition) {
            self.mentions.identifier(&definition.name)
        } else {
            None
        }
    }

    /// Whether the reading at a position is inside an external declaration.
    fn is_read_inside(&self, number: u32) -> bool
        ensures { let reading = self.now.reading.now in result ≡ passes_if (λ (one : SeenRead). is_inside reading.core.externals (position reading.pp one.before)) (slice_get reading.pp.read number) }
    {
        match self.reading.pp.read.items().get(number as usize) {
            None => false,
            Some(one) => self.places.is_inside(one.before),
        }
    }

    /// Whether a definition is read inside an external declaration.
    pub(crate) fn stands_inside(&self, definition: &Definition) -> bool
        ensures { result ≡ rules.stands_inside definition.now self.now.reading.now }
    {
        let numbers = self.readings_of(definition);
        for number in numbers {
            if self.is_read_inside(*number) {
                return true;
            }
        }
        false
    }
}

fn place_of_definition(definition: &Definition, other: &Definition) -> Place
    ensures { result ≡ rules.place_of_definition definition.now other.now }
{
    if is_file(other.origin) {
        other.place
    } else {
        definition.place
    }
}

/// Whether an expansion leaves nothing of its own, where these are the numbers of those that have runs.
fn is_gone(one: &Expansion, instances: &Instances) -> bool
    ensures { (runs : Sequence SeenRun) → AreOf runs instances.now → result ≡ rules.is_gone runs one.now }
{
    one.taken || one.foreign || !instances.has(one.instance)
}

/// The name of the expansion at a position, if one of these runs is of it.
fn name_with_run(expansions: &[Expansion], number: u32, instances: &Instances) -> Option<Place>
    ensures { (runs : Sequence SeenRun) → AreOf runs instances.now → result ≡ name_if (uses.has_run runs) (slice_get expansions.now number) }
{
    let one = expansions.get(number as usize)?;
    if instances.has(one.instance) {
        Some(one.name)
    } else {
        None
    }
}

/// The name of the expansion at a position, if it leaves nothing of its own.
fn name_if_gone(expansions: &[Expansion], number: u32, instances: &Instances) -> Option<Place>
    ensures { (runs : Sequence SeenRun) → AreOf runs instances.now → result ≡ name_if (rules.is_gone runs) (slice_get expansions.now number) }
{
    let one = expansions.get(number as usize)?;
    if is_gone(one, instances) {
        Some(one.name)
    } else {
        None
    }
}

/// The first of some runs that is of the expansion with this number.
fn run_of(runs: &[Run], instance: u32) -> Option<&Run>
    ensures { option_map (λ run. run.now) result ≡ find (λ (run : SeenRun). run.instance == instance) runs.now }
{
    runs.iter().find(|run| run.instance == instance)
}

fn first(numbers: &[u32]) -> Option<u32>
    ensures { result ≡ slice_get numbers.now 0 }
{
    numbers.first().copied()
}

/// The lesser of two numbers, if there are any.
fn least(one: Option<u32>, other: Option<u32>) -> Option<u32>
    ensures { result ≡ lines.least one other }
{
    match (one, other) {
        (None, _) => other,
        (Some(_), None) => one,
        (Some(one), Some(other)) => Some(one.min(other)),
    }
}

fn definition_at(read: &[Read], number: u32) -> Option<&Definition>
    ensures { option_copied result ≡ option_map (λ (one : SeenRead). one.definition) (slice_get read.now number) }
{
    match read.get(number as usize) {
        None => None,
        Some(one) => Some(&one.definition),
    }
}

fn reading_at(read: &[Read], number: u32) -> Option<&Read>
    ensures { option_copied result ≡ slice_get read.now number }
{
    read.get(number as usize)
}

fn expansion_at(expansions: &[Expansion], number: u32) -> Option<&Expansion>
    ensures { option_copied result ≡ slice_get expansions.now number }
{
    expansions.get(number as usize)
}
