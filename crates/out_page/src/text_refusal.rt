//! The page's text after its data: the one with `page/refusal.js`. `.ci/explore_page.py --write` writes it.

/// The page's text after its data: the one with `page/refusal.js`.
pub(crate) const REFUSAL: &[u8] = b"\
    <script>\n\
    \"use strict\";\n\
    // A session that is refused, but for a causal cycle: its report, where the fault is, and what to do. There i\
    s no run.\n\
    \n\
    // What to do, by the first word after `refused`, or by that and the last one.\n\
    const MENDS = new Map(Object.entries({\n\
    \x20 spec: \"Mend the session's document.\",\n\
    \x20 predicate: \"Mend the text of that predicate, in the document or after --ask.\",\n\
    \x20 streams: \"Name the streams of one run: one file for each process of the document.\",\n\
    \x20 absent: \"Name the stream of that process too, or take the process out of the document.\",\n\
    \x20 stream: \"Look at that line of that stream: whatever wrote it is to be mended, and the run recorded agai\
    n.\",\n\
    \x20 \"stream unended\": \"The process ended, and its recording has no end. Have it end that as its last step\
    ; if it was \" +\n\
    \x20   \"killed, monitor_mend ends its stream.\",\n\
    \x20 \"stream taken\": \"Name each file once, and only those of one run.\",\n\
    \x20 \"stream unknownprocess\": \"Name that process in the document, or leave its stream out.\",\n\
    \x20 \"stream unknownvar\": \"Give the process that variable in the document, or don't record it.\",\n\
    \x20 sendtwice: \"Give each message an id of its own, also if a process is started again.\",\n\
    \x20 orphan: \"Record the process that sent the message too, or have monitor_mend make a local event of the r\
    eceipt, by \" +\n\
    \x20   \"--orphans-as-local.\",\n\
    \x20 selfmessage: \"Record neither the send nor the receipt of a message that a process sends to itself.\",\n\
    \x20 receivedtwice: \"Record the receipt once. If several processes receive the message, let the document say\
    \x20\" +\n\
    \x20   \"\\\"version\\\":2.\",\n\
    }));\n\
    \n\
    function whatToMend(report) {\n\
    \x20 const words = report.trim().split(/\\s+/);\n\
    \x20 const [, word] = words;\n\
    \x20 return MENDS.get(word + \" \" + words[words.length - 1]) ?? MENDS.get(word) ?? \"Look at what the report\
    \x20names.\";\n\
    }\n\
    \n\
    // A text of several lines, with escapes for what shows as no letter.\n\
    function plainLines(text) {\n\
    \x20 return text.split(\"\\n\").map(plainText).join(\"\\n\");\n\
    }\n\
    \n\
    async function copyRefusal([report, explanation]) {\n\
    \x20 let words = \"The report is copied.\";\n\
    \x20 try {\n\
    \x20   await navigator.clipboard.writeText(plainLines(report.trimEnd() + \"\\n\" + explanation));\n\
    \x20 } catch {\n\
    \x20   words = \"The browser lets this page copy nothing.\";\n\
    \x20 }\n\
    \x20 byId(\"refusal-said\").textContent = words;\n\
    }\n\
    \n\
    function showRefusal(run) {\n\
    \x20 const [report, explanation] = run.refusal;\n\
    \x20 document.documentElement.classList.add(\"refused\");\n\
    \x20 document.title = plainText(titleText(run));\n\
    \x20 byId(\"verdict\").textContent = \"The session is refused\";\n\
    \x20 byId(\"verdict\").className = \"broken\";\n\
    \x20 byId(\"report\").textContent = plainText(report.trim());\n\
    \x20 byId(\"explanation\").textContent = plainLines(explanation.trimEnd());\n\
    \x20 byId(\"explanation\").hidden = explanation.trim() === \"\";\n\
    \x20 byId(\"mend\").textContent = whatToMend(report);\n\
    \x20 byId(\"refusal-copy\").addEventListener(\"click\", () => copyRefusal(run.refusal));\n\
    }\n\
    \n\
    if (typeof module === \"object\") {\n\
    \x20 Object.assign(globalThis, require(\"./notes.js\"));   // on the page, scripts share their names\n\
    \x20 module.exports = { whatToMend, plainLines };\n\
    }\n\
    </script>\n\
    ";
