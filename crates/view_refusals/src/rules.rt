//! Words for the rules of systems, and for names that aren't known.

use crate::explain::Refused;
use crate::names::{object_with, put_earlier, put_names, put_perhaps, values_of};
use crate::regions::put_regions;
use ffm_model::{
    BUDGET_WITHOUT_PERMISSION, DEPENDENCY_CYCLE, DUPLICATE_IRQ_SOURCE, DUPLICATE_PARTITION,
    DUPLICATE_SERVICE, DUPLICATE_SID, DUPLICATE_STATELESS_INDEX, Key, MEMORY_TOO_LARGE, PathStep,
    REGION_OVERLAP, REGION_UNKNOWN, SELF_DEPENDENCY, TOO_MANY_CONNECTIONS, TOO_MANY_PARTITIONS,
    TOO_MANY_SIGNALS, TOO_MANY_STATELESS, UNKNOWN_ACTOR, UNKNOWN_DEPENDENCY,
};
use file_places::{Listed, Shown, number_of};
use std::alloc::AllocError;

// Words for a rule on how many there may be.
fn limit_words(code: u8) -> &'static str {
    match code {
        TOO_MANY_SIGNALS => "wrong: this partition has more than 28 services and interrupts\n",
        TOO_MANY_PARTITIONS => "wrong: there are more than 32 manifests\n",
        TOO_MANY_CONNECTIONS => {
            "wrong: the pairs that may connect have more than 256 connections\nhint: each pair has 1 that isn't in `connections`, and each client pairs with each service that has `non_secure_clients` true\n"
        }
        TOO_MANY_STATELESS => "wrong: there are more than 32 stateless services\n",
        MEMORY_TOO_LARGE => {
            "wrong: a region has more than 1048576 bytes, or all regions together more than 16777216\n"
        }
        _ => "",
    }
}

// The name of the partition of this ID.
fn named<'a>(names: &[&'a [u8]], id: u32) -> &'a [u8] {
    let place = id.saturating_sub(1) as usize;
    names.get(place).copied().unwrap_or(b"?")
}

impl Refused<'_> {
    // Writes that a value stands twice: the same text, or the same number.
    fn put_double(
        &self,
        text: &mut String,
        list: Key,
        key: Key,
        words: &str,
    ) -> Result<(), AllocError> {
        let (sources, spot) = (self.sources, self.spot);
        let mut values = Vec::new(sources.alloc);
        let (objects, others) = if list == Key::Manifests {
            (sources.manifests()?, sources.items(Key::Clients)?)
        } else {
            (sources.items_of_manifests(list)?, Vec::new(sources.alloc))
        };
        for object in &objects {
            if let Some(value) = object.named(key) {
                values.push(value)?;
            }
        }
        values.extend_from_slice(&others)?;
        let number = number_of(self.word);
        let first = values.iter().find(|value| {
            value.text() == self.word || (number.is_some() && number_of(value.text()) == number)
        });
        writeln!(text, "wrong: an earlier {words}")?;
        match first.copied() {
            Some(first)
                if first.source.number != spot.source.number || first.number != spot.number => {
                put_earlier(text, first)
            }
            _ => Ok(()),
        }
    }

    // Writes which names there are, with words behind them, and which of them is perhaps meant.
    fn put_list(
        &self,
        text: &mut String,
        names: &[&[u8]],
        more: &str,
        given: &[u8],
    ) -> Result<(), AllocError> {
        if names.is_empty() && more.is_empty() {
            return text.push_str("hint: there is none\n");
        }
        put_names(text, names, more)?;
        put_perhaps(self.sources.alloc, text, names, given, "\"")
    }

    fn put_unknown_dependency(&self, text: &mut String) -> Result<(), AllocError> {
        writeln!(text, "wrong: no service is named {}", Shown(self.word))?;
        let services = self.sources.items_of_manifests(Key::Services)?;
        let names = values_of(self.sources.alloc, &services, Key::Name)?;
        self.put_list(text, &names, "", self.word)
    }

    fn put_unknown_region(&self, text: &mut String) -> Result<(), AllocError> {
        let given = self.spot.value(Key::Name);
        text.push_str("wrong: no region of the system file is named ")?;
        writeln!(text, "{}", Shown(given))?;
        let regions = self.sources.items(Key::Regions)?;
        let names = values_of(self.sources.alloc, &regions, Key::Name)?;
        self.put_list(
            text,
            &names,
            ", or `base` and `size` in place of `name`",
            given,
        )
    }

    fn put_unknown_actor(&self, text: &mut String) -> Result<(), AllocError> {
        let sources = self.sources;
        let mut names = values_of(sources.alloc, &sources.manifests()?, Key::Name)?;
        for client in &sources.items(Key::Clients)? {
            names.push(client.text())?;
        }
        if matches!(self.word, b"device") {
            text.push_str("wrong: the system has no interrupt, and so no device\n")?;
            return writeln!(text, "expected: one of {}", Listed(&names));
        }
        writeln!(text, "wrong: no actor is named {}", Shown(self.word))?;
        let has_device = !sources.items_of_manifests(Key::Irqs)?.is_empty();
        if has_device && self.steps.first() == Some(&PathStep::Key(Key::Schedule)) {
            names.push(b"device".as_slice())?;
        }
        self.put_list(text, &names, "", self.word)
    }

    fn put_unknown_source(&self, text: &mut String) -> Result<(), AllocError> {
        let stated = self.spot.value(Key::Source);
        let given = if stated.is_empty() { self.word } else { stated };
        writeln!(text, "wrong: no interrupt has the source {}", Shown(given))?;
        let irqs = self.sources.items_of_manifests(Key::Irqs)?;
        let names = values_of(self.sources.alloc, &irqs, Key::Source)?;
        let name = given.strip_suffix(b"_SIGNAL").unwrap_or(&[]);
        let irq = match object_with(&irqs, Key::Signal, given) {
            None if !name.is_empty() => object_with(&irqs, Key::Name, name),
            irq => irq,
        };
        let Some(irq) = irq else {
            return self.put_list(text, &names, "", given);
        };
        let (signal, source) = (Shown(given), Shown(irq.value(Key::Source)));
        writeln!(text, "expected: one of {}", Listed(&names))?;
        writeln!(text, "hint: {signal} is a signal: its source is {source}")
    }

    fn put_circle(&self, text: &mut String) -> Result<(), AllocError> {
        let manifests = self.sources.manifests()?;
        let names = values_of(self.sources.alloc, &manifests, Key::Name)?;
        text.push_str("wrong: a circle:")?;
        let next = self.circle.iter().skip(1).chain(self.circle.iter().take(1));
        for (i, (id, next)) in self.circle.iter().zip(next).enumerate() {
            let comma = if i > 0 { "," } else { "" };
            let (from, to) = (Shown(named(&names, *id)), Shown(named(&names, *next)));
            write!(text, "{comma} {from} needs a service of {to}")?;
        }
        text.push_str("\nhint: take one of these dependencies out\n")
    }

    /// Writes which rule of systems is broken at a value, or which name of the scenario isn't known.
    pub fn put_rule(&self, text: &mut String) -> Result<(), AllocError> {
        let is_interrupt = self.steps.first() == Some(&PathStep::Key(Key::Interrupts));
        let (list, key, words) = match self.code {
            DUPLICATE_PARTITION => (
                Key::Manifests,
                Key::Name,
                "partition or client has this name",
            ),
            DUPLICATE_SERVICE => (Key::Services, Key::Name, "service has this name"),
            DUPLICATE_SID => (Key::Services, Key::Sid, "service has this SID"),
            DUPLICATE_IRQ_SOURCE => (Key::Irqs, Key::Source, "interrupt has this source"),
            DUPLICATE_STATELESS_INDEX => {
                (
                    Key::Services,
                    Key::StatelessHandle,
                    "service has this index",
                )
            }
            UNKNOWN_DEPENDENCY => return self.put_unknown_dependency(text),
            DEPENDENCY_CYCLE => return self.put_circle(text),
            REGION_UNKNOWN => return self.put_unknown_region(text),
            UNKNOWN_ACTOR if is_interrupt => return self.put_unknown_source(text),
            UNKNOWN_ACTOR => return self.put_unknown_actor(text),
            SELF_DEPENDENCY => {
                let service = Shown(self.word);
                write!(text, "wrong: {service} is a service of this partition")?;
                return text.push_str(" itself\nhint: take it out\n");
            }
            REGION_OVERLAP => {
                text.push_str(
                    "wrong: this region shares a byte with an earlier one, or with RAM\nhint: the regions are ",
                )?;
                put_regions(text, self.sources)?;
                return text.push('\n');
            }
            BUDGET_WITHOUT_PERMISSION => {
                let client = Shown(self.spot.value(Key::Client));
                let service = Shown(self.spot.value(Key::Service));
                writeln!(text, "wrong: {client} may not connect to {service}")?;
                return text.push_str(
                    "hint: a partition lists the service in `dependencies`; for a client the service has `non_secure_clients` true; a stateless service has no connections\n",
                );
            }
            code => return text.push_str(limit_words(code)),
        };
        self.put_double(text, list, key, words)
    }
}
